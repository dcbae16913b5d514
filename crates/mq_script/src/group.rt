// Scripts: groups of requests, and how each group ends.
use mq_tree::Request;
use std::marker::Model;

/// How a group ends: what it needs beside the execution of its requests.
#[derive(Clone, Copy, PartialEq, Eq)]
pub enum End {
    /// The group is one transaction, and durable before the answer.
    Fsync,
    /// The group is one transaction.
    Fatomic,
    /// The group changes nothing.
    Ask,
}

/// Requests that are executed together.
#[derive(Drop)]
pub struct Group {
    pub requests: Vec<Request>,
    pub end: End,
}

impl Model for Group {
    ghost use Rattle.mq_script.specs.Scripts.{Group as Requests};

    ghost Value = { Requests };

    ghost view = { λ g. record { requests = g.requests.items; end = g.end } };
}

/// What one session asks for, in order.
#[derive(Drop)]
pub struct Script {
    pub groups: Vec<Group>,
}

impl Model for Script {
    ghost use Rattle.mq_script.specs.Scripts.{Script as Groups};

    ghost Value = { Groups };

    ghost view = { λ s. record { groups = s.groups.items } };
}
