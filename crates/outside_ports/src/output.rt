//! Writing a text whole.

ghost use Rattle.std.specs.Prelude.{◌≡◌, ◌≤◌, ◌<◌, ◌+◌, ◌++◌, drop, length, take, option_map};
ghost use Rattle.outside_ports.specs.Counts.{Rose};

use crate::sink::Sink;

/// Writes `text` to the sink, piece by piece, and says how many bytes it took: all of them, or
/// fewer where a write failed.
pub fn write_all<O: Sink>(out: &mut O, text: &[u8]) -> usize
    ensures within { result ≤ length text.now }
    ensures held { O.held out.new ≡ option_map (λ bytes. bytes ++ take result text.now)
        (O.held out.old) }
    ensures whole { result ≡ length text.now → O.faults out.new ≡ O.faults out.old }
    ensures cut { result < length text.now → Rose (O.faults out.old) (O.faults out.new) }
    ensures kept { O.faults out.old ≤ O.faults out.new }
{
    let mut done = 0;
    'writing: while done < text.len() {
        match out.write(following(text, done)) {
            Ok(count) => done += count,
            Err(_) => return done,
        }
    }
    done
}

/// The bytes from a place on.
fn following(text: &[u8], done: usize) -> &[u8]
    requires { done ≤ length text.now }
    ensures rest { result.now ≡ drop done text.now }
    ensures len { length result.now + done ≡ length text.now }
{
    text.split_at(done).1
}
