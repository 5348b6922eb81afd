// What stands in a slot.
ghost use Rattle.std.specs.Prelude.{◌≡◌};

use reql_datum::Name;
use std::alloc::AllocError;

/// A table: its database, its name, and the name of its primary key field.
#[derive(Drop)]
pub struct Table {
    pub db: Name,
    pub name: Name,
    pub key: Name,
}

/// A slot that was given: its table, or nothing where that was dropped.
#[derive(Drop)]
pub struct Slot {
    pub table: Option<Table>,
}

impl Clone for Table {
    ghost is_clone = { λ x y. y ≡ x };

    fn clone(&self) -> Result<Table, AllocError> {
        let (Ok(db), Ok(name), Ok(key)) = (self.db.copy(), self.name.copy(), self.key.copy()) else {
            return Err(AllocError);
        };
        Ok(Table { db, name, key })
    }
}

impl Clone for Slot {
    ghost is_clone = { λ x y. y ≡ x };

    fn clone(&self) -> Result<Slot, AllocError> {
        match &self.table {
            None => Ok(Slot { table: None }),
            Some(table) => {
                let copied = table.clone()?;
                Ok(Slot {
                    table: Some(copied),
                })
            }
        }
    }
}
