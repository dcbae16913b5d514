// What holds of the queues and of whatever a power cut leaves of their ports.
ghost use Rattle.mq_loose_queues.specs.Laws.{QueuesAreSafe, RecoveredMayOpen, SettledStays};

/// The queues are always in a state of the loose machine: whatever a power cut leaves of their ports is readable;
/// its set of transactions is closed under dependence and has each number that was settled; and it stands for the
/// map after these.
pub fn loose_queues_are_safe()
    ensures { QueuesAreSafe }
{}

/// A number that is settled stays settled, whatever is committed and drained later.
pub fn settled_stays()
    ensures { SettledStays }
{}

/// Over the ports that `loose_recover` leaves, with the standing that it answers, the queues may be opened.
pub fn recovered_ports_may_open()
    ensures { RecoveredMayOpen }
{}
