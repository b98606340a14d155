//! Files in memory, by name.

ghost use Rattle.std.specs.Prelude.{◌≡◌, ◌<◌, length, map, None, Some, MatchOption};
ghost use Rattle.rvc_io.specs.Files.{named, under, are_distinct, bytes_at};

/// The place of the file of this name.
pub(crate) fn place_of(files: &[(String, Vec<u8>)], name: &str) -> Option<usize>
    ensures { MatchOption result (under (map named files.now) name.now ≡ None)
        (λ place. (place < length files.now) × (under (map named files.now) name.now
        ≡ Some (bytes_at (map named files.now) place))) }
{
    for (place, file) in files.iter().enumerate() {
        if file.0.as_str() == name {
            return Some(place);
        }
    }
    None
}

/// The bytes of the file at this place.
pub(crate) fn bytes_at(files: &[(String, Vec<u8>)], place: usize) -> &[u8]
    requires { place < length files.now }
    ensures { result.now ≡ bytes_at (map named files.now) place }
{
    files[place].1.as_slice()
}

/// Whether no two of the files have one name.
pub fn names_are_distinct(files: &[(String, Vec<u8>)]) -> bool
    ensures { result ≡ are_distinct (map named files.now) }
{
    for place in 0..files.len() {
        let file = &files[place];
        if place_of(&files[place + 1..], file.0.as_str()).is_some() {
            return false;
        }
    }
    true
}
