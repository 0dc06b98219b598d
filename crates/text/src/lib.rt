// The text that the program `report` prints for the bytes of a rule file.
#![tactic(auto)]

mod lines;

ghost use Rattle.refusals.specs.Number.{number_of};
ghost use Rattle.words.specs.Lines.{refused_line_of};
ghost use Rattle.words.specs.Held.{Holds};
ghost use Rattle.text.specs.Text.{ReportOf};
ghost use Rattle.text.specs.Made.{TableReport};

use refusals::Refusal;
use table::Table;
use words::Text;

fn refused(e: Refusal) -> Text
    ensures { Holds result (refused_line_of (number_of e.why) e.place) }
{
    let mut bytes = [0u8; Text::ROOM];
    let len = words::refused_line(e.why.number(), e.place, &mut bytes, 0);
    Text { len, bytes }
}

// The text for a table.
fn judged(t: Table) -> Text
    ensures { TableReport t result }
{
    let mut schedule = [0u64; Table::MAX_N];
    let mut low = [0u32; Table::MAX_N];
    let mut high = [0u32; Table::MAX_N];
    let a = match period::analyse(t, &mut schedule, &mut low, &mut high) {
        Ok(a) => a,
        Err(e) => return refused(e),
    };
    let mut bytes = [0u8; Text::ROOM];
    let len = lines::answer(
        a,
        &low[..a.low.len],
        &high[..a.high.len],
        &schedule[..t.n],
        &mut bytes,
        0,
    );
    Text { len, bytes }
}

// The whole text for a file: for its refusal in reading, or for its table.
pub fn report(bytes: &[u8]) -> Text
    ensures { ReportOf bytes.now result }
{
    match rulefile::table(bytes) {
        Ok(t) => judged(t),
        Err(e) => refused(e),
    }
}
