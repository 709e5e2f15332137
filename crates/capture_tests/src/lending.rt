//! That a record is lent no longer than to the feed's next use.
ghost use Rattle.std.specs.Prelude.{◌≤◌, IsTrue, IfSome};
ghost use Rattle.room_io.specs.Room.{IsReadyIn};
ghost use Rattle.room_io.specs.declared.room.Slot.TheVariants.{Capture};
ghost use Rattle.capture_feed.specs.Left.{is_live};

use capture_feed::Feed;
use room_io::Room;

/// How many bytes the next two records lend. A record is let go before the next call of the feed:
/// the borrow checker refuses to keep one longer, since its bytes may be overwritten then.
pub fn lent_lengths<R: Room>(feed: &mut Feed, room: &mut R) -> Option<(usize, usize)>
    requires live { IsTrue (is_live feed.old) }
    requires ready { IsReadyIn Capture (R.state room.old) }
    ensures { IfSome result (λ lengths. (lengths.0 ≤ 2048) × (lengths.1 ≤ 2048)) }
{
    let first = match feed.next(room) {
        Ok(got) => match got {
            Some(rec) => rec,
            None => return None,
        },
        Err(_) => return None,
    };
    let first_length = first.bytes.len();
    let second = match feed.next(room) {
        Ok(got) => match got {
            Some(rec) => rec,
            None => return None,
        },
        Err(_) => return None,
    };
    Some((first_length, second.bytes.len()))
}
