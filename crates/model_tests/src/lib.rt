//! Tests of the names and the types of a model: long chains, names that hide others, shared names, cyclic parents, and parts that lie
//! too deep. Which faults names and types have is tested by texts in `model_text_tests`.
#![tactic(auto)]

#[cfg(test)]
mod crossed_names;
#[cfg(test)]
mod of_bounding_types;
#[cfg(test)]
mod of_deep_expressions;
#[cfg(test)]
mod of_doubling_functions;
#[cfg(test)]
mod of_global_names;
#[cfg(test)]
mod of_known_callees;
#[cfg(test)]
mod of_name_tables;
#[cfg(test)]
mod of_number_cycles;
#[cfg(test)]
mod of_part_sorts;
#[cfg(test)]
mod of_resolved_paragraphs;
#[cfg(test)]
mod of_shared_fields;
#[cfg(test)]
mod of_shared_names;
#[cfg(test)]
mod of_signature_names;
#[cfg(test)]
mod of_typed_scopes;
#[cfg(test)]
mod reading;
#[cfg(test)]
mod small_models;
