//! Tests of the program's commands, through the public items of `szg_answers`, `szg_shown` and `szg_commands` alone: words, answers,
//! statuses, texts, and devices that fail.
#![tactic(auto)]

#[cfg(test)]
mod commands;
