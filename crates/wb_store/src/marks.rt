ghost use Rattle.std.specs.Prelude.{◌≡◌, length};
ghost use Rattle.wb_store.specs.invariants.Marks.{first_marked};

use crate::records::Record;
use wb_metamodel::ObjectId;

/// The first object whose place is marked.
pub fn first_marked(records: &[Record], marks: &[bool]) -> Option<ObjectId>
    requires { length marks.now ≡ length records.now }
    ensures { result ≡ first_marked records.now marks.now }
{
    for (i, record) in records.iter().enumerate() {
        if marks[i] {
            return Some(record.id);
        }
    }
    None
}
