//! Laws of stores and MACs that are made here, each the contract of a function that does nothing.
ghost use Rattle.std.specs.Prelude.{◌≡◌, ◌≤◌, ℕ, List, true};
ghost use Rattle.std.specs.Str.{IsUtf8};
ghost use Rattle.asn1_core.specs.Der.{IsShort};
ghost use Rattle.p12.specs.Building.{Entry, GivesBack, IsStoreOf, Salts};
ghost use Rattle.p12.specs.Canonical.{WritableStore, store_canon};
ghost use Rattle.p12.specs.Collected.{StoreFault, StoreHolds, store_agrees};
ghost use Rattle.p12.specs.MacData.{is_mac_digest, mac_agrees, mac_of};
ghost use Rattle.pkcs12_kdf.specs.Password.{bmp_password};
ghost use Rattle.p12.specs.Pfx.{IsStore};
ghost use Rattle.p12.specs.declared.algorithm_identifier.AlgorithmIdentifier.{AlgorithmIdentifier};
ghost use Rattle.p12.specs.declared.error.Error.{Error};
ghost use Rattle.p12.specs.declared.pfx.PFX.{PFX};
ghost use Rattle.p12.specs.declared.safe_bag.SafeBag.{SafeBag};

/// A store that `PFX::new` or `PFX::new_with_cas` made opens under its password, and only to what it was made of: its
/// certificates in order, its key, and the bags of both, up to the order of their attributes. Its MAC agrees. So `bags`
/// and the calls beside it have no refusal for it but `Memory`.
pub fn a_made_store_opens()
    ensures opens { (p : List ℕ) (e : Entry) (s : Salts) (store : PFX) → IsUtf8 e.name
        → IsStoreOf (bmp_password p) e store s → (gs : List SafeBag) × StoreHolds p store gs }
    ensures gives { (p : List ℕ) (e : Entry) (s : Salts) (store : PFX) (gs : List SafeBag)
        → IsUtf8 e.name → IsStoreOf (bmp_password p) e store s → StoreHolds p store gs
        → GivesBack p e gs }
    ensures mac { (p : List ℕ) (e : Entry) (s : Salts) (store : PFX)
        → IsStoreOf (bmp_password p) e store s → store_agrees p store ≡ true }
{}

/// A store that holds bags under a password has no fault under it.
pub fn what_opens_has_no_fault()
    ensures { (p : List ℕ) (s : PFX) (gs : List SafeBag) (e : Error) → StoreHolds p s gs
        → ¬ (StoreFault p s e) }
{}

/// What is written of a store that was made here is read as that store.
pub fn a_made_store_is_read_again()
    ensures writable { (q : List ℕ) (e : Entry) (s : Salts) (store : PFX) → IsStoreOf q e store s
        → WritableStore store }
    ensures read { (q : List ℕ) (e : Entry) (s : Salts) (store : PFX) → IsStoreOf q e store s
        → IsShort (store_canon store) → IsStore (store_canon store) store }
{}

/// A store that was made here, written and read again, opens under its password, and only to what it was made of, and its
/// MAC agrees.
pub fn a_made_store_opens_once_it_is_read_again()
    ensures opens { (p : List ℕ) (e : Entry) (s : Salts) (store read : PFX) → IsUtf8 e.name
        → IsStoreOf (bmp_password p) e store s → IsStore (store_canon store) read
        → (gs : List SafeBag) × StoreHolds p read gs }
    ensures gives { (p : List ℕ) (e : Entry) (s : Salts) (store read : PFX) (gs : List SafeBag)
        → IsUtf8 e.name → IsStoreOf (bmp_password p) e store s
        → IsStore (store_canon store) read → StoreHolds p read gs → GivesBack p e gs }
    ensures mac { (p : List ℕ) (e : Entry) (s : Salts) (store read : PFX)
        → IsStoreOf (bmp_password p) e store s → IsStore (store_canon store) read
        → store_agrees p read ≡ true }
{}

/// A MAC that `MacData::new`, `MacData::with_salt` or `MacData::with_salt_sha256` made agrees for the same content and password.
pub fn a_made_mac_agrees()
    ensures { (a : AlgorithmIdentifier) (q v salt : List ℕ) (r : ℕ) → is_mac_digest a ≡ true
        → 1 ≤ r → mac_agrees (mac_of a q v salt r) q v ≡ true }
{}
