/// What a backend passes before each position of a scan, while it holds no lock. It changes nothing that is claimed.
pub trait Gate {
    fn at_position(&self, backend: u32, fragment: u32, position: u32);
}

/// A gate that lets everybody pass at once.
#[derive(Clone, Copy, Debug, Drop)]
pub struct NoGate;

impl Gate for NoGate {
    fn at_position(&self, _backend: u32, _fragment: u32, _position: u32) {}
}
