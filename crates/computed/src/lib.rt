// What a job comes to: a refusal, or the field that then stands in its buffers.
#![tactic(auto)]

// How many vertices, triangles and pieces the job has, how many edges its mesh has, how many windows were made, and how many events were popped.
#[derive(Clone, Copy)]
pub struct Field {
    pub vertices: u32,
    pub triangles: u32,
    pub pieces: u32,
    pub edges: u32,
    pub windows: u32,
    pub steps: u32,
}

// A refusal has its number in document 01.
#[derive(Clone, Copy)]
pub enum Computed {
    Refused(u32),
    Field(Field),
}
