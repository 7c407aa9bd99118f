// What was to be made is not there.
#[derive(Clone, Copy, Debug)]
pub struct Missing;
