// What the test programs share: one array of words that holds all that a program remembers, scripts of commands and numbers, arrays and
// memory to lend whose old contents are known, and printing. Contracts say only that nothing here reads or writes out of range, and that
// it ends: what the programs print is compared.
#![tactic(auto)]

mod arrays;
mod memory;
mod print;
mod script;
mod words;

pub use arrays::{
    bytes, first_bytes, first_numbers, first_u32s, lend_bytes, lend_numbers, lend_u32s, numbers,
    u32s,
};
pub use memory::{different_entries, different_words, lend_words, marked_list, marked_table};
pub use print::{print_numbers, print_value, print_words, text};
pub use script::{ROW, next_command, row_to};
pub use words::{Words, add, clear, copy, larger, minus, plus, put, quotient, rest, times, word};
