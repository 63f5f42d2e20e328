// Tables: the check of any table for a list, and an output's row as a part of a table.
#![tactic(auto)]

pub mod check;
pub mod row;
