use pcj_client::Job;

/// A client with a job in flight.
#[derive(Drop)]
pub struct Busy {
    /// The client's number, from 1 to 64.
    pub client: u8,
    /// Its job.
    pub job: Job,
}
