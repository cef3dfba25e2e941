// The words and numbers in lines.
use std::alloc::{AllocError, Global};

/// What stands beside this word.
pub fn find<T: Copy>(table: &[(&str, T)], word: &str) -> Option<T> {
    for (name, meaning) in table {
        if *name == word {
            return Some(*meaning);
        }
    }
    None
}

/// The number of a segment, and how many of its bytes a crash keeps.
pub fn kept(text: &str) -> Option<(u32, u64)> {
    let (segment, size) = text.split_once(':')?;
    Some((segment.parse::<u32>().ok()?, size.parse::<u64>().ok()?))
}

/// What a crash keeps of each segment.
pub fn all_kept(alloc: Global, text: &str) -> Result<Vec<(u32, u64)>, AllocError> {
    let mut keep = Vec::new(alloc);
    for word in text.split(' ') {
        if let Some(size) = kept(word) {
            keep.push(size)?;
        }
    }
    Ok(keep)
}
