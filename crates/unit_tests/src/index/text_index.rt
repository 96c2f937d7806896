//! Texts that are added, and their numbers.

use crate::seen::see;
use program_index::index_failure::IndexFailure;
use program_index::text_index::TextIndex;
use std::process::Abort;
use std::test::Fail;

/// Adds texts, of which one comes twice, and looks at their numbers.
fn add_texts(rt: &impl Abort, index: &mut TextIndex) -> Result<(), IndexFailure> {
    for (text, number) in [(b"run", 0), (b"()V", 1), (b"run", 0)] {
        see(rt, index.intern(text)?, number);
    }
    Ok(())
}

/// Looks for texts by their numbers, and for numbers by their texts.
fn look_at_texts(rt: &impl Abort, index: &TextIndex) {
    see(rt, (index.is_empty(), index.len()), (false, 2));
    see(rt, index.text(0), Some(b"run".as_slice()));
    see(
        rt,
        [index.find(b"()V"), index.find(b"close")],
        [Some(1), None],
    );
}

#[test]
fn texts_keep_their_numbers(rt: HostRuntime) -> Result<(), Fail> {
    let mut index = TextIndex::new(rt.alloc());
    see(&rt, index.is_empty(), true);
    add_texts(&rt, &mut index)?;
    look_at_texts(&rt, &index);
    Ok(())
}
