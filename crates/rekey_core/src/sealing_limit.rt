//! Whether sealing a store anew takes no more rounds than it may.
ghost use Rattle.std.specs.Prelude.{◌≡◌, ◌<◌, ◌≤◌, ◌+◌, MatchOption, length};
ghost use Rattle.std.specs.Bool.{Decides};
ghost use Rattle.std.specs.List.{sum_by};
ghost use Rattle.rekey_core.specs.Renewed.{encrypted_in};
ghost use Rattle.rekey_core.specs.Upgraded.{seal_rounds};
ghost use Rattle.transfer.specs.Opening.{all_shrouded, shrouded_among};

use crate::kinds::Renewal;
use asn1_core::Items;
use p12::{ContentInfo, SafeBag, SafeBagKind};

/// What is left of so many parts without the encrypted ones of these contents; `None` where they are more.
fn without_contents(contents: &[ContentInfo], parts: u64) -> Option<u64>
    ensures { MatchOption result (parts < sum_by encrypted_in contents.now)
        (λ left. parts ≡ left + sum_by encrypted_in contents.now) }
{
    let mut left = parts;
    let mut rest = contents;
    while let Some((content, back)) = rest.split_first() {
        if let ContentInfo::EncryptedData(_) = content {
            if left == 0 {
                return None;
            }
            left -= 1;
        }
        rest = back;
    }
    Some(left)
}

/// What is left of so many parts without the encrypted keys among bags; `None` where they are more.
fn without_keys(bags: &[SafeBag], parts: u64) -> Option<u64>
    ensures { MatchOption result (parts < length (shrouded_among bags.now))
        (λ left. parts ≡ left + length (shrouded_among bags.now)) }
{
    let mut left = parts;
    let mut rest = bags;
    while let Some((bag, back)) = rest.split_first() {
        if let SafeBagKind::Pkcs8ShroudedKeyBag(_) = &bag.bag {
            if left == 0 {
                return None;
            }
            left -= 1;
        }
        rest = back;
    }
    Some(left)
}

/// The same of the bags of all contents.
fn without_all_keys(bags: &[Items<SafeBag>], parts: u64) -> Option<u64>
    ensures { MatchOption result (parts < length (all_shrouded bags.now))
        (λ left. parts ≡ left + length (all_shrouded bags.now)) }
{
    let mut left = parts;
    let mut rest = bags;
    while let Some((held, back)) = rest.split_first() {
        left = without_keys(held.as_slice(), left)?;
        rest = back;
    }
    Some(left)
}

/// Whether it takes no more rounds than it may to seal contents that hold these bags.
pub(crate) fn is_within(renewal: Renewal, contents: &[ContentInfo], bags: &[Items<SafeBag>]) -> bool
    ensures { Decides result
        (seal_rounds renewal.rounds contents.now bags.now ≤ renewal.seal_limit) }
{
    let parts = renewal.seal_limit / u64::from(renewal.rounds.count());
    // One is the MAC.
    if parts == 0 {
        return false;
    }
    let Some(left) = without_contents(contents, parts - 1) else {
        return false;
    };
    without_all_keys(bags, left).is_some()
}
