// The life of a table's bytes: read, checked, loaded, fired, and free to be written to again.
#![tactic(auto)]

ghost use Rattle.std.specs.Prelude.{◌≡◌, set as put, MatchResult};

use checker::pass::Pass;
use controller::held::Controller;
use model::fault::Fault;
use queue_check::check_files;
use std::io;
use table::view::Table;

// A sender and a taker.
static TABLE: &[u8; 32] =
    b"\x01\x00\x02\x00\x01\x00\x02\x00\x00\x00\x10\x00\x14\x00\x20\x00\x01\x00\x01\x00\x02\x00\x00\x00\x00\x01\x01\x01\x00\x00\x00\x00";

// The records (0, 0; 0, 0) and (0, 0; 0, 1) of local states and codes.
static SET: &[u8; 52] =
    b"\x01\x00\x00\x00\x00\x00\x02\x00\x01\x00\x02\x00\x10\x00\x00\x00\x00\x00\x00\x00\x00\x00\x00\x00\x00\x00\x00\x00\x00\x00\x00\x00\x00\x00\x00\x00\x00\x00\x00\x00\x00\x00\x00\x00\x01\x00\x00\x00\x00\x00\x00\x00";

// Whether a table has rules and the first fires from the start. Then the table's first byte is cleared.
fn fire_and_clear(table: &mut [u8; 32], set: &[u8]) -> Result<bool, Fault>
    ensures { MatchResult result (λ _. table.new ≡ put table.old 0 0) (λ _. table.new ≡ table.old) }
{
    let view = Table::read(table)?;
    let rules = view.rule_count();
    let pass: Pass<'_> = check_files(table, set)?;
    let mut controller = Controller::load(pass);
    let fired = rules > 0 && controller.fire(0).is_ok();
    table[0] = 0;
    Ok(fired)
}

fn main(rt: HostRuntime) -> io::Result<()> {
    let mut table = [0; 32];
    table.copy_from_slice(TABLE);
    let first = fire_and_clear(&mut table, SET);
    let again = fire_and_clear(&mut table, SET);
    match (first, again) {
        (Ok(true), Err(fault)) => {
            let number = u8::from(fault.number);
            println!(rt; "fired; a table that was written to: refused {number}")
        }
        _ => println!(rt; "not as it should be"),
    }
}
