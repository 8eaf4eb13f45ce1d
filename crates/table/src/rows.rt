ghost use Rattle.table.specs.Text.{row};

use crate::Field;
use crate::texts::Text;

/// What stands between two fields.
const COMMA: &[u8] = b",";
/// What ends a row.
pub(crate) const ROW_END: &[u8] = b"\r\n";

impl Text for &[Field] {
    ghost text = { λ fields. row fields.now };

    #[tactic(auto, using(crate::proofs::Columns::lengths))]
    fn text_len(self) -> usize {
        // No chain: of `sum` and `try_fold` it is not proved that the total fits, of the loop it is.
        let mut len = self.len().saturating_sub(1) + ROW_END.len();
        for field in self {
            len += field.text_len();
        }
        len
    }

    #[tactic(auto, using(crate::proofs::Columns::columns))]
    fn write(self, memory: &mut [u8], at: usize) -> usize {
        let [first, rest @ ..] = self else {
            return ROW_END.write(memory, at);
        };
        let mut place = first.write(memory, at);
        for field in rest {
            place = COMMA.write(memory, place);
            place = field.write(memory, place);
        }
        ROW_END.write(memory, place)
    }
}
