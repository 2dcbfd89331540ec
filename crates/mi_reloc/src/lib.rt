//! Images of regions, the states that they are loaded into, and what a build is made with and answers.
#![tactic(auto)]

mod building;
mod ending;
mod fixed;
mod laws;
mod loading;
mod origin;
mod relocatable;
mod sources;

pub use building::{BuildFault, Made, Settings};
pub use ending::RunEnd;
pub use fixed::fixed_of;
pub use laws::cells_give_explained_forms;
pub use loading::{LoadFault, load};
pub use mi_image::Image;
pub use mi_model::Found;
pub use origin::origin_of;
pub use relocatable::{CellFault, image_of};
pub use sources::Sources;
