//! Tests of rows on pages.
#![tactic(auto)]

mod directory;
mod files;
mod rooms;
mod rows;
