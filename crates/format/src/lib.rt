// What a format string says, read in place from its hexadecimal text: a type (`to_dtype`) or a dictionary's index type (`to_integer_type`).
#![tactic(auto)]

pub mod dictionary;
pub mod parts;
pub mod read;
