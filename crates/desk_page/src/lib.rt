//! The page of the desk for browsers: its resources, and the policy that it is served under.
#![tactic(auto)]

mod forms;
mod frame;
mod german;
mod page;
mod policy;
mod records;
mod resource;
mod style;
mod values;
mod views;

pub use forms::{FORMS, FORMS_TAG};
pub use frame::{FRAME, FRAME_TAG};
pub use german::{GERMAN, GERMAN_TAG};
pub use page::{PAGE, PAGE_TAG};
pub use policy::{POLICY, policy_text};
pub use records::{RECORDS, RECORDS_TAG};
pub use resource::{Resource, bytes_of, media_type_of, resource_at, tag_of};
pub use style::{STYLE, STYLE_TAG};
pub use values::{VALUES, VALUES_TAG};
pub use views::{VIEWS, VIEWS_TAG};
