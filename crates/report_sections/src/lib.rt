// The report's three sections as bytes: `lists` writes the rows of the first, list by list, and
// `accounts` those of the second and the third, account by account.

#![tactic(auto)]

pub mod accounts;
pub mod lists;
