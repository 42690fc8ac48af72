// The address whose ports the server opens.
use std::env;
use std::env::VarError;
use std::net::{IpAddr, Ipv4Addr};
use std::rt::Env;

/// The variable of the environment that names the address.
const VARIABLE: &str = "PUBSUB_HOST";

/// Why no address is known.
#[derive(Clone, Copy, Debug, PartialEq, Eq)]
pub enum HostError {
    /// The variable is no address.
    NoAddress,
    /// There was no memory.
    OutOfMemory,
}

/// The address that a text names. Without a text it is 127.0.0.1, which only this machine reaches.
fn address_of(text: &str) -> Result<IpAddr, HostError> {
    if text.is_empty() {
        return Ok(IpAddr::V4(Ipv4Addr::LOCALHOST));
    }
    match text.parse::<IpAddr>() {
        Ok(address) => Ok(address),
        Err(_) => Err(HostError::NoAddress),
    }
}

/// The address that the environment names.
pub fn host_address(rt: &(impl Env + AllocGlobal)) -> Result<IpAddr, HostError> {
    match env::var(rt, VARIABLE) {
        Ok(text) => address_of(text.as_str()),
        Err(VarError::NotPresent) => address_of(""),
        Err(VarError::NotUnicode) => Err(HostError::NoAddress),
        Err(VarError::OutOfMemory) => Err(HostError::OutOfMemory),
    }
}
