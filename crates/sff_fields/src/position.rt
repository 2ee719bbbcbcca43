// Positions in a read, both from one: a base's place among the bases, and a flow's among the flows.
#[derive(Clone, Copy)]
pub struct BasePosition(pub u64);

#[derive(Clone, Copy)]
pub struct FlowPosition(pub u64);
