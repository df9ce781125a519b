// Bytes put into a lent buffer, where it has room for them.
ghost use Rattle.std.specs.Prelude.{◌≡◌};
ghost use Rattle.text.specs.Room.{put_at, behind};

// A word put at a place, and the place behind it; all other bytes stay. Where there is no room for it, the buffer stays and the place comes back.
pub fn put(word: &[u8], out: &mut [u8], at: usize) -> usize
    ensures { (result ≡ behind word.now out.old at) × (out.new ≡ put_at word.now out.old at) }
{
    if out.len() < at || out.len() - at < word.len() {
        return at;
    }
    for i in 0..word.len() {
        out[at + i] = word[i];
    }
    at + word.len()
}
