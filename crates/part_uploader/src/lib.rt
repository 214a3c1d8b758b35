//! The state of one writer: it takes bytes into buffers of a part each, and says what is to be asked of the bucket
//! next. Contracts see it as the upload of the rules.
//! Nothing here knows of a bucket's calls or of requests.
#![tactic(auto)]

mod buffers;
mod uploader;
mod waiting;

pub use upload_rules::UpFault;
pub use uploader::{MAX_PARTS, Uploader};
