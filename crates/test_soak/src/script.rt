//! The texts of a run.
use std::alloc::{AllocError, Global};

/// How many changes there are.
pub const CHANGES: usize = 1000;

/// How many workers make them.
pub const WORKERS: u32 = 4;

/// How many rows they are of.
pub const ROWS: u64 = 8;

/// `copy` writes what column 0 holds to column 1; `counter` adds one to what column 15 holds, whenever column 1 changes; and
/// `last` writes what column 15 holds to column 14.
pub const MANIFEST: &str =
    "{\"profile\":1,\"observers\":[{\"name\":\"copy\",\"column\":0,\"helpers\":[2],\"code\":\"bf1600000000000079623000000000007b2ae0ff0000000079623800000000007b2ae8ff0000000079624000000000007b2af0ff0000000079624800000000007b2af8ff000000007961000000000000b702000001000000bfa300000000000007030000e0ffffff8500000002000000b7000000000000009500000000000000\"},{\"name\":\"counter\",\"column\":1,\"helpers\":[1,2],\"code\":\"7916000000000000bfa300000000000007030000e0ffffffbf61000000000000b70200000f0000008500000001000000bf01000000000000b700000001000000150108000200000079a1e0ff0000000007010000010000007b1ae0ff00000000bfa300000000000007030000e0ffffffbf61000000000000b70200000f00000085000000020000009500000000000000\"},{\"name\":\"last\",\"column\":15,\"helpers\":[2],\"code\":\"bf1600000000000079623000000000007b2ae0ff0000000079623800000000007b2ae8ff0000000079624000000000007b2af0ff0000000079624800000000007b2af8ff000000007961000000000000b70200000e000000bfa300000000000007030000e0ffffff8500000002000000b7000000000000009500000000000000\"}]}";

// The number after this, as numbers at random.
fn next_number(x: u64) -> u64 {
    x % 2_147_483_647 * 48_271 % 2_147_483_647
}

// Adds the line of a change: it writes its number to one row, and each of every fourth deletes three cells more.
fn add_line(text: &mut String, number: usize, row: u64) -> Result<(), AllocError> {
    write!(text, "put {row} 0 {number:04x}")?;
    if number % 4 == 3 {
        for place in [1, 3, 6] {
            let other = (row % ROWS + place) % ROWS;
            write!(text, "; del {other} 0")?;
        }
    }
    text.push_str("\n")
}

/// The changes, each of a row at random. Every fourth has four cells, and these are all of one worker, so that the others come
/// to their passes while it still makes changes.
pub fn script(alloc: Global) -> Result<String, AllocError> {
    let mut text = String::new(alloc);
    let mut x = 20_100_101;
    for number in 0..CHANGES {
        x = next_number(x);
        add_line(&mut text, number, x % ROWS)?;
    }
    Ok(text)
}
