//! The imports and exports of a world.

/// What a world imports and exports, in order. An interface is given by its number among those of
/// all packages, and the function of the world's item j, from 0, by j and the number of all
/// interfaces.
#[derive(Drop)]
pub struct WorldExterns {
    pub imports: Vec<usize>,
    pub exports: Vec<usize>,
}
