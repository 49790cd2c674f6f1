// Objects with names.
ghost use Rattle.plan_objects.specs.Named.{Claims, Joins};
ghost use Rattle.std.specs.Prelude.{◌≡◌};

use std::alloc::AllocError;

/// An object and its name.
#[derive(Drop)]
pub struct Named<T: Drop> {
    /// The name with which a configuration asks for it.
    pub name: String,
    /// The object.
    pub object: T,
}

/// Adds an object after the others.
pub fn join<T: Drop>(held: &mut Vec<Named<T>>, name: String, object: T) -> Result<(), AllocError>
    ensures { Joins (record { name = name; object = object }) result held.old.items held.new.items }
{
    held.push(Named { name, object })?;
    Ok(())
}

/// Hands out the first object of a name. It takes no memory.
pub fn claim<T: Drop>(held: &mut Vec<Named<T>>, name: &str) -> Option<T>
    ensures { Claims name.now held.old.items result held.new.items }
{
    for place in 0..held.len() {
        if held[place].name.as_str() == name {
            let Named { name: _, object } = held.remove(place);
            return Some(object);
        }
    }
    None
}
