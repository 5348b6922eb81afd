use crate::names::Names;

/// What the catalogue knows: its names; how many databases were made, dropped ones included; and how
/// many slots there are.
#[derive(Drop)]
pub struct Catalog {
    pub names: Names,
    pub made: u128,
    pub most: u32,
}
