//! Which content of a store is damaged.
use crate::detail::Detail;
use crate::inspection::plain_of;
use crate::no_store::in_ber;
use command_base::Password;
use p12::{BagsView, ContentView, ContentsView, StoreView};
use std::alloc::{AllocError, Global};

/// Whether a content opens to something other than a list of bags.
fn is_damaged(
    alloc: Global,
    content: &ContentView<'_>,
    password: &Password,
) -> Result<bool, AllocError> {
    match plain_of(alloc, content, password)? {
        Some(plain) => Ok(BagsView::parse(plain.as_slice()).is_err()),
        None => Ok(false),
    }
}

/// The octet at which a content begins, counted within the list of contents.
fn start_of(content: &ContentView<'_>) -> usize {
    match content {
        ContentView::Plain { at, .. } | ContentView::Encrypted { at, .. } => at.start,
        ContentView::Other { .. } => 0,
    }
}

/// What says which of the contents is damaged; `first` is the octet of the store at which their
/// list begins.
fn damaged_among(
    alloc: Global,
    mut contents: ContentsView<'_>,
    first: usize,
    password: &Password,
) -> Result<Option<String>, AllocError> {
    let mut number: u64 = 0;
    while let Some(content) = contents.next() {
        number = number.saturating_add(1);
        if is_damaged(alloc, &content, password)? {
            let at = first.saturating_add(start_of(&content));
            return Ok(Some(format!(in alloc;
                "the MAC agrees, but the contents are damaged: content {number}, at octet {at}, \
                 is no list of bags"
            )?));
        }
    }
    Ok(None)
}

/// The same of a list of contents.
fn damaged_in(
    alloc: Global,
    list: &[u8],
    first: usize,
    password: &Password,
    der_only: bool,
) -> Result<Option<String>, AllocError> {
    match ContentsView::parse(list) {
        Ok(contents) => damaged_among(alloc, contents, first, password),
        Err(_) => match in_ber(alloc, list, first, der_only)? {
            Some(text) => Ok(Some(text)),
            None => Ok(Some(format!(in alloc;
                "the MAC agrees, but the contents are damaged: what is at octet {first} is no \
                 list of contents"
            )?)),
        },
    }
}

/// What is damaged in a store whose MAC agrees; with `der_only` a list of contents in BER is.
pub fn damaged(
    alloc: Global,
    store: &[u8],
    password: &Password,
    der_only: bool,
) -> Result<Option<Detail>, AllocError> {
    let Ok(store) = StoreView::parse(store) else {
        return Ok(None);
    };
    let ContentView::Plain { content, at } = store.auth_safe else {
        return Ok(None);
    };
    match damaged_in(alloc, content, at.start, password, der_only)? {
        Some(text) => Ok(Some(Detail::of(text))),
        None => Ok(None),
    }
}
