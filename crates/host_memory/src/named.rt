// The objects of a host in memory, by their paths.
ghost use Rattle.std.specs.Prelude.{◌≡◌, ◌<◌, ◌++◌, ◌∷◌, [], None, Some, List, ℕ, OnOk, OnErr, length, set, string_bytes};
ghost use Rattle.host_memory.specs.Folders.{place_in, with_object, IsAt};
ghost use Rattle.host_memory.specs.declared.named.Named.{Named};

use std::alloc::{AllocError, Global};

/// An object of a host in memory, by its path.
#[derive(Drop)]
pub struct Named<T: Drop> {
    /// Its path.
    pub path: String,
    /// The object, which is not here while it is handed out.
    pub object: Option<T>,
}

/// Where the first object of this path is.
pub fn place_of<T: Drop>(objects: &[Named<T>], path: &str) -> Option<usize>
    ensures { result ≡ place_in objects.now path.now }
{
    for i in 0..objects.len() {
        if path == objects[i].path.as_str() {
            return Some(i);
        }
    }
    None
}

/// Hands an object out, if it is there.
pub fn take_out<T: Drop>(objects: &mut Vec<Named<T>>, index: usize) -> Option<T>
    requires { index < length objects.old.items }
    ensures { (was : Named T) × IsAt objects.old.items index was × (result ≡ was.object) ×
        (objects.new.items ≡ set objects.old.items index (with_object was None)) }
{
    objects[index].object.take()
}

/// Gives an object back.
pub fn give_back<T: Drop>(objects: &mut Vec<Named<T>>, index: usize, object: T)
    requires { index < length objects.old.items }
    ensures { (was : Named T) × IsAt objects.old.items index was ×
        (objects.new.items ≡ set objects.old.items index (with_object was (Some object))) }
{
    objects[index].object = Some(object);
}

/// Makes room for an object of a path, which is handed out.
pub fn add_room<T: Drop>(
    alloc: Global,
    objects: &mut Vec<Named<T>>,
    path: &str,
) -> Result<(), AllocError>
    ensures added { OnOk result ((named : Named T) × (string_bytes named.path ≡ path.now) ×
        (named.object ≡ None)
        × (objects.new.items ≡ objects.old.items ++ named ∷ [])) }
    ensures same { OnErr result (objects.new.items ≡ objects.old.items) }
{
    let path = String::from_str(alloc, path)?;
    objects.push(Named { path, object: None })?;
    Ok(())
}
