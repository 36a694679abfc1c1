//! What the notes of a run say of each SDU that was sent: whether it was got and when, or where it was written off.
#![tactic(auto)]

mod ending;
mod fate;
mod gather;
mod laws;
mod lost;
mod read;
mod row;
mod sentence;
mod shown;
mod sum;
mod table;

pub use ending::{Status, refuse, write};
pub use fate::other_end;
pub use gather::{ends_in, offs_in};
pub use laws::each_sdu_sent_has_its_row;
pub use lost::view;
pub use read::{Unread, read_notes};
pub use row::{Row, rows_of};
pub use sentence::{flow, num};
pub use shown::{End, Entry, Off};
pub use sum::{Sum, sum_of};
pub use table::lost_table;
