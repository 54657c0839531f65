//! That the reference hart agrees with the rows that `trace_maker` makes, from the bytes of the two
//! texts on: laws over definitions alone, and no code. specs/Shows.antt says what a made row shows,
//! specs/Lines.antt which lines the trace has, specs/Images.antt what the image describes,
//! specs/States.antt where the hart starts, specs/Laws.antt the laws.
#![tactic(auto)]

pub mod laws;
