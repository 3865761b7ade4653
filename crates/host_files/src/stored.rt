//! Files in one run of bytes, so that a store takes no memory that was not reserved.

ghost use Rattle.std.specs.Prelude.{◌≡◌, ◌+◌, ◌≤◌, ◌++◌, ◌∷◌, [], length, All, vec_len, vec_capacity, option_copied};
ghost use Rattle.std.specs.FinMap.{get, insert};
ghost use Rattle.host_files.specs.Stored.{files_of, LiesWithin};

/// Where a file stands: its name from `name` to `body`, its bytes from `body` to `end`.
#[derive(Clone, Copy)]
pub struct Place {
    pub name: usize,
    pub body: usize,
    pub end: usize,
}

/// The newest file of that name.
pub fn find<'a>(bytes: &'a [u8], places: &[Place], name: &str) -> Option<&'a [u8]>
    requires { All (LiesWithin (length bytes.now)) places.now }
    ensures { option_copied result ≡ get (files_of bytes.now places.now) name.now }
{
    let mut found = None;
    for place in places {
        if name.as_bytes() == &bytes[place.name..place.body] {
            found = Some(&bytes[place.body..place.end]);
        }
    }
    found
}

/// Adds a file behind the others. There is memory for it.
pub fn add(bytes: &mut Vec<u8>, places: &mut Vec<Place>, name: &str, body: &[u8])
    requires fit { All (LiesWithin (length bytes.old.items)) places.old.items }
    requires bytes { vec_len bytes.old + (length name.now + length body.now) ≤ vec_capacity bytes.old }
    requires places { vec_len places.old + 1 ≤ vec_capacity places.old }
    ensures files { files_of bytes.new.items places.new.items ≡ insert (files_of bytes.old.items places.old.items) name.now body.now }
    ensures fit { All (LiesWithin (length bytes.new.items)) places.new.items }
    ensures bytes_len { vec_len bytes.new ≡ vec_len bytes.old + (length name.now + length body.now) }
    ensures places_len { vec_len places.new ≡ vec_len places.old + 1 }
    ensures bytes_capacity { vec_capacity bytes.old ≤ vec_capacity bytes.new }
    ensures places_capacity { vec_capacity places.old ≤ vec_capacity places.new }
{
    let at = bytes.len();
    bytes.extend_from_slice(name.as_bytes()).unwrap();
    let middle = bytes.len();
    bytes.extend_from_slice(body).unwrap();
    places.push_reserved(Place {
        name: at,
        body: middle,
        end: bytes.len(),
    });
}
