// Who asks for what, apart from the path.
#[derive(Clone, Copy)]
pub struct Asker<'a> {
    pub user: &'a [u8],
    // The groups that list the user.
    pub set: u64,
    pub mode: u32,
    pub origin: &'a [u8],
}
