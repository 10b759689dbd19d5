// What lies at an offset, read without the tests of a block.
ghost use Rattle.std.specs.Prelude.{◌+◌, ◌≤◌, ◌≡◌, length};
ghost use Rattle.framing.specs.Frame.{frame_at};
ghost use Rattle.check_walk.specs.Lookup as lookups;

use part::Part;

// The level in the frame at an offset; 0 where there is no frame.
pub fn level_at(file: &[u8], at: usize) -> u8
    ensures { result ≡ lookups.level_of (frame_at file.now at) }
{
    match framing::frame_at(file, at) {
        Ok(frame) => frame.level,
        Err(_) => 0,
    }
}

// The payload in the frame at an offset; the empty part at 0 where there is no frame.
pub fn payload_at(file: &[u8], at: usize) -> Part
    ensures value { result ≡ lookups.payload_part (frame_at file.now at) }
    ensures length_in_bounds { result.offset + result.length ≤ length file.now }
{
    match framing::frame_at(file, at) {
        Ok(frame) => {
            let offset = frame.body + 1;
            Part {
                offset,
                length: frame.end - offset,
            }
        },
        Err(_) => Part::NONE,
    }
}
