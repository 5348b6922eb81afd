ghost use Rattle.std.specs.Prelude.{◌≡◌};

use crate::map::NameMap;
use std::alloc::AllocError;

/// A database: how many were made before it, dropped ones included, and its tables with their slots.
#[derive(Drop)]
pub struct Database {
    pub number: u128,
    pub tables: NameMap<u32>,
}

impl Clone for Database {
    ghost is_clone = { λ x y. y ≡ x };

    fn clone(&self) -> Result<Database, AllocError> {
        let Ok(tables) = self.tables.copy() else {
            return Err(AllocError);
        };
        Ok(Database {
            number: self.number,
            tables,
        })
    }
}
