//! Laws over definitions alone, and no code: what several harts do to one another, row by row and
//! over whole runs, what a core's own registers and protection come to, and what columns of
//! registers are compared with. specs/Rows.antt says what rows leave and write,
//! specs/Reservations.antt what is reserved and since when, specs/Profiles.antt what accesses come
//! to, specs/Columns.antt what is compared.
#![tactic(auto)]

pub mod column_laws;
pub mod laws;
pub mod profile_laws;
