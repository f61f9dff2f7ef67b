// Texts kept as the lines of a table.
use crate::say::words;
use system::files::Target;

// Says line k of a table, counted from 0; nothing where there is none.
pub fn entry(told: &Target, table: &[u8], k: usize) {
    if let Some(line) = table.split(|b| *b == b'\n').nth(k) {
        words(told, line);
    }
}
