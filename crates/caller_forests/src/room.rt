//! Writes bytes into a caller's buffer.
ghost use Rattle.std.specs.Prelude.{◌≡◌};
ghost use Rattle.caller_forests.specs.Texts.{filled, filled_with_text};

// Writes as many of the bytes into the buffer as fit.
pub(crate) fn fill_room(room: &mut [u8], bytes: &[u8])
    ensures { room.new ≡ filled bytes.now room.old }
{
    let count = room.len().min(bytes.len());
    room[..count].copy_from_slice(&bytes[..count]);
}

// Writes the text and a 0 after it into the buffer, and truncates the text so that the 0 fits. An empty buffer stays
// empty.
pub(crate) fn fill_with_text(room: &mut [u8], text: &[u8])
    ensures { room.new ≡ filled_with_text text.now room.old }
{
    let Some(most) = room.len().checked_sub(1) else {
        return;
    };
    let count = text.len().min(most);
    fill_room(room, &text[..count]);
    room[count] = 0;
}
