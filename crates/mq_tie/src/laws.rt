// What holds of a desk over the ports of a journal, once nobody holds anything.
ghost use Rattle.mq_tie.specs.Backed.{ReportsAreBacked};
ghost use Rattle.mq_tie.specs.Laws.{DesksEndAsParts, WordsAreMarks};
ghost use Rattle.mq_tie.specs.Ports.{RunsKeepTheirPorts};
ghost use Rattle.mq_tie.specs.Rings.{CommitsRingOnce};

use mq_desk_laws::JournalValues;
use mq_drive::Port;
use mq_journal::Groups;

/// When no chair holds anything, what is known on a desk, its sides and its root are parts of one lawful
/// state of the machine, with the words of the marks as its marks.
pub fn a_desk_ends_in_a_lawful_state<J: JournalValues>()
    ensures parts { DesksEndAsParts J.values J.group }
    ensures marks { WordsAreMarks J.values J.group }
{}

/// A desk that was closed gives back the ports that it was opened with: each is still the port of its role,
/// with the same fuse, and the same of its commands and home writes fails.
pub fn a_closed_desk_keeps_its_ports<P: Port, G: Groups>()
    ensures { RunsKeepTheirPorts P.Port P.state P.faults G.group }
{}

/// What a chair of a closed desk had reported is of one of the ports, and backed by it: the port has gained
/// the fault that the report names since the desk was opened, or has as many faults as a count of 64 bits
/// can say.
pub fn what_was_reported_is_backed<P: Port, G: Groups>()
    ensures { ReportsAreBacked P.Port P.state P.faults G.group }
{}

/// Each port of a queue that a closed desk gives back has rung once for each commit of the queue that was
/// sent. Home writes aside, at most 2n + 4 events happened on it for each commit of n entries in the
/// history, and one for each fault of the port, unless these are as many as a count of 64 bits can say.
pub fn an_ended_desk_rang_once_for_each_commit<P: Port, G: Groups>()
    ensures { CommitsRingOnce P.Port P.state P.faults G.group }
{}
