//! The count office: it cuts its input into lines and answers each, loads and exports returns, and forecasts a loading.
#![tactic(auto)]

mod answer;
mod desks;
mod judgement;
mod judgement_lines;
mod judging;
mod laws;
mod line_cutter;
mod load;
mod office;
mod queries;
mod service;

pub use answer::Answer;
pub use judgement::{Forecast, JudgementFault};
pub use judging::write_judgement;
pub use laws::{
    each_is_judged_after_those_before, forecast_is_kept, law_nights, stretches, undisturbed,
};
pub use office::Office;
pub use queries::NotGiven;
pub use service::ServeFault;
pub use zh_csv::NotedReader;
pub use zh_ledger::{FormatFault, OpenFault};
