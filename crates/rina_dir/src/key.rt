//! The keys of directory entries.
ghost use Rattle.std.specs.Prelude.{◌≡◌, ◌+◌, ◌≤◌, length, take};
ghost use Rattle.rina_dir.specs.Directory.{key_byte, key_of};

/// How many bytes the longest key has: `/dir/` and the longest name of an application.
pub const LONGEST_KEY: usize = 134;

/// A byte of a name as it stands in a key: a slash is written `!`.
#[tactic(auto, unfolding(crate::specs::Directory::key_byte))]
fn key_byte(byte: u8) -> u8
    ensures { result ≡ key_byte byte }
{
    if byte == b'/' { b'!' } else { byte }
}

/// Writes the key of an application's entry, `/dir/` and its name with `!` for a slash, to the front of a row of
/// bytes, and gives its length in bytes. Takes no memory.
pub fn write_key(app: &[u8], key: &mut [u8]) -> usize
    requires room { length app.now + 5 ≤ length key.old }
    ensures len { result ≡ length app.now + 5 }
    ensures written { take result key.new ≡ key_of app.now }
{
    key[0] = b'/';
    key[1] = b'd';
    key[2] = b'i';
    key[3] = b'r';
    key[4] = b'/';
    for at in 0..app.len() {
        key[at + 5] = key_byte(app[at]);
    }
    app.len() + 5
}
