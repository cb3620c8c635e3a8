// The line that `serve` ends with.
ghost use Rattle.std.specs.Prelude.{◌≡◌, ◌≤◌, ◌+◌, ◌++◌, length};
ghost use Rattle.std.specs.Fmt.{decimal};
ghost use Rattle.tab_server.specs.Counts.{counts_line};

use audit_journal::Journal;
use tab_fields::SmallBytes;

// The line of counts: connections, entries of the journal, commands that were answered, commands
// that were canceled, and commands that failed.
pub(crate) fn counts_line(links: u64, journal: &Journal) -> SmallBytes<144>
    ensures { result ≡ counts_line links journal.now.entries }
{
    let counts = journal.counts();
    let mut line = SmallBytes::new();
    line.add(b"links ");
    add_number(links, &mut line);
    line.add(b" entries ");
    add_number(counts.entries, &mut line);
    line.add(b" commands ");
    add_number(counts.commands, &mut line);
    line.add(b" canceled ");
    add_number(counts.canceled, &mut line);
    line.add(b" faults ");
    add_number(counts.faults, &mut line);
    line.add(b"\n");
    line
}

// Adds a number in decimal.
fn add_number(number: u64, line: &mut SmallBytes<144>)
    requires { length line.old ≤ 124 }
    ensures all { line.new ≡ line.old ++ decimal number }
    ensures most { length line.new ≤ length line.old + 20 }
{
    line.add(itoa::Buffer::new().format(number).as_bytes());
}
