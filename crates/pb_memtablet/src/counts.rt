//! How many entries blocks of chunks have, so that a place is found without a walk over all chunks.
ghost use Rattle.std.specs.Prelude.{◌≡◌, ◌≤◌, length, slice_get, vec_capacity};
ghost use Rattle.std.specs.List.{All};
ghost use Rattle.pb_memtablet.specs.Chunks.{chunk_entries, IsChunk};
ghost use Rattle.pb_memtablet.specs.BlockCounts.{AreCounts, IsInBlock};

use crate::chunks::{Chunk, entry_among};

// How many chunks are counted together: `at` goes over all numbers and then over the chunks of one block, so that
// larger blocks slow walks over small lists, and smaller ones over large lists.
const BLOCK: usize = 64;

// The place of the block that has the chunk at this place.
pub(crate) fn block_of(place: usize) -> usize
    ensures { IsInBlock place result }
{
    place / BLOCK
}

// How many entries the chunks of a block have.
fn count_entries<K, V>(block: &[Chunk<K, V>]) -> usize
    requires each { All IsChunk block.now }
    requires few { length block.now ≤ BLOCK }
    ensures { result ≡ length (chunk_entries block.now) }
{
    let mut count = 0;
    for chunk in block {
        count += chunk.len();
    }
    count
}

// Counts all blocks anew. There is room for as many numbers as there are chunks, so that it can't fail.
pub(crate) fn count_blocks<K, V>(chunks: &[Chunk<K, V>], counts: &mut Vec<usize>)
    requires each { All IsChunk chunks.now }
    requires room { length chunks.now ≤ vec_capacity counts.old }
    ensures counts { AreCounts counts.new.items chunks.now }
    ensures capacity { vec_capacity counts.old ≤ vec_capacity counts.new }
{
    counts.clear();
    let mut rest = chunks;
    while !rest.is_empty() {
        let (block, behind) = rest.split_at(BLOCK.min(rest.len()));
        counts.push(count_entries(block)).unwrap();
        rest = behind;
    }
}

// The entry at a place, counted over all chunks: over the blocks before it, and then in its block.
pub(crate) fn entry_at<K: Copy, V: Copy>(
    chunks: &[Chunk<K, V>],
    counts: &[usize],
    place: usize,
) -> Option<(K, V)>
    requires { AreCounts counts.now chunks.now }
    ensures { result ≡ slice_get (chunk_entries chunks.now) place }
{
    let mut left = place;
    for block in 0..counts.len() {
        let count = counts[block];
        if left < count {
            let (_, rest) = chunks.split_at(block * BLOCK);
            return entry_among(rest, left);
        }
        left -= count;
    }
    None
}
