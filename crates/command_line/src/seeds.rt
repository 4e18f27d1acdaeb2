//! The seed of `scramble` and `junk`, a word in its place.
use command_grammar::{Number, Parameter};

/// What the help says about the seed.
pub const SEED_PLACE: Parameter<'static> = Parameter::Place("SEED", "The seed, 0 to 4294967295");

/// The seeds that may be given.
pub const PLACED_SEED: Number<'static> = Number {
    id: "SEED",
    name: "SEED",
    least: 0,
    most: 4_294_967_295,
};
