// What the program answers to the bytes of its input.
#![tactic(auto)]

ghost use Rattle.std.specs.Prelude.{◌≡◌};
ghost use Rattle.table.specs.Table.{table};
ghost use Rattle.rows.specs.Sheet.{read_sheet};
ghost use Rattle.scan.specs.Lent.{Room};
ghost use Rattle.verdict.specs.Numbers.{number};
ghost use Rattle.found.specs.Search.{refused};
ghost use Rattle.report.specs.Answer.{answer_lines};
ghost use Rattle.answer.specs.Lent.{laid, holding};
ghost use Rattle.reply.specs.Reply.{printed_for, printed};

use scan::Columns;
use table::Table;
use verdict::{Reason, Refusal};

// The answer to a refusal.
fn refuse(refusal: Refusal, out: &mut [u8]) -> usize
    ensures value { result ≡ laid (answer_lines (refused (number refusal.reason) refusal.at) 0) out.old }
    ensures out_after { out.new ≡ holding (answer_lines (refused (number refusal.reason) refusal.at) 0) out.old }
{
    answer::lines(found::refuse(refusal.reason.code(), refusal.at), 0, out)
}

// The answer to a sheet, which is read into the lent columns.
fn reply_in(input: &[u8], x: &mut [i32], y: &mut [i32], kit: &mut [u64], out: &mut [u8]) -> usize
    requires { Room 4096 (table x.old y.old kit.old) }
    ensures value { result ≡ laid (printed_for (read_sheet input.now)) out.old }
    ensures out_after { out.new ≡ holding (printed_for (read_sheet input.now)) out.old }
{
    let columns = Columns { x, y, kit };
    match sheet::take_in(input, columns) {
        Err(refusal) => refuse(refusal, out),
        Ok(s) => {
            let t = Table {
                x: &x[..s.places],
                y: &y[..s.places],
                kit: &kit[..s.places],
            };
            let found = own::search_table(&t, s.want, s.budget);
            answer::lines(found, s.want, out)
        }
    }
}

// What the program prints for its input, at the start of a lent buffer; gives how many bytes that is.
// Where the buffer is shorter it gives 0 and changes nothing. 534 bytes are enough for every input.
pub fn reply(input: &[u8], out: &mut [u8]) -> usize
    ensures value { result ≡ laid (printed input.now) out.old }
    ensures out_after { out.new ≡ holding (printed input.now) out.old }
{
    if input.len() > 65536 {
        let too_long = Refusal {
            reason: Reason::TooLong,
            at: 0,
        };
        return refuse(too_long, out);
    }
    let mut x = [0; 4096];
    let mut y = [0; 4096];
    let mut kit = [0; 4096];
    reply_in(input, &mut x, &mut y, &mut kit, out)
}
