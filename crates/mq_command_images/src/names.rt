// How causes are named in the lines of the program.
ghost use Rattle.std.specs.Prelude.{◌≡◌};
ghost use Rattle.mq_command_images.specs.Names.{corrupt_name, descriptor_name, entry_name, fault_name};

use mq_area::DescriptorRefusal;
use mq_nvme::EntryRefusal;
use mq_tree::{CorruptCause, Fault};

pub fn name_of_entry(cause: EntryRefusal) -> &'static str
    ensures { result.now ≡ entry_name cause }
{
    match cause {
        EntryRefusal::Opcode { .. } => "Opcode",
        EntryRefusal::Namespace { .. } => "Namespace",
        EntryRefusal::Count { .. } => "Count",
        EntryRefusal::Flags { .. } => "Flags",
    }
}

pub fn name_of_descriptor(cause: DescriptorRefusal) -> &'static str
    ensures { result.now ≡ descriptor_name cause }
{
    match cause {
        DescriptorRefusal::Magic { .. } => "Magic",
        DescriptorRefusal::Version { .. } => "Version",
        DescriptorRefusal::Queue { .. } => "Queue",
        DescriptorRefusal::Number { .. } => "Number",
        DescriptorRefusal::Place { .. } => "Place",
        DescriptorRefusal::Previous { .. } => "Previous",
        DescriptorRefusal::Counts { .. } => "Counts",
        DescriptorRefusal::List { .. } => "List",
        DescriptorRefusal::Rest { .. } => "Rest",
        DescriptorRefusal::OutOfMemory => "OutOfMemory",
    }
}

/// The name of what is wrong at a block.
pub fn name_of_corrupt(cause: CorruptCause) -> &'static str
    ensures { result.now ≡ corrupt_name cause }
{
    match cause {
        CorruptCause::Layout => "Layout",
        CorruptCause::Pointer => "Pointer",
        CorruptCause::Unmarked => "Unmarked",
        CorruptCause::Shared => "Shared",
        CorruptCause::Count => "Count",
        CorruptCause::Twin => "Twin",
        CorruptCause::Unreached => "Unreached",
        CorruptCause::Kind => "Kind",
        CorruptCause::Tail => "Tail",
    }
}

pub fn name_of_fault(fault: Fault) -> &'static str
    ensures { result.now ≡ fault_name fault }
{
    match fault {
        Fault::NotFound => "NotFound",
        Fault::Exists => "Exists",
        Fault::NotDir => "NotDir",
        Fault::IsDir => "IsDir",
        Fault::NotEmpty => "NotEmpty",
        Fault::BadName => "BadName",
        Fault::TooBig => "TooBig",
        Fault::Subtree => "Subtree",
        Fault::NoSpace => "NoSpace",
        Fault::NoInodes => "NoInodes",
        Fault::Links => "Links",
    }
}
