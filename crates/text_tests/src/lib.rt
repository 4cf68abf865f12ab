//! Tests of a document's characters, marks and spans, of the document, and of the plain programs.
#![tactic(auto)]

#[cfg(test)]
mod anchor_tests;
#[cfg(test)]
mod change_tests;
#[cfg(test)]
mod chunk_tests;
#[cfg(test)]
mod comment_tests;
#[cfg(test)]
mod document_tests;
#[cfg(test)]
mod edge_tests;
#[cfg(test)]
mod lasting_tests;
#[cfg(test)]
mod plain_tests;
#[cfg(test)]
mod random_tests;
#[cfg(test)]
mod sequence_tests;
#[cfg(test)]
mod span_tests;
#[cfg(test)]
mod test_acts;
#[cfg(test)]
mod test_changes;
#[cfg(test)]
mod test_documents;
#[cfg(test)]
mod test_names;
#[cfg(test)]
mod test_plain;
#[cfg(test)]
mod test_rows;
#[cfg(test)]
mod test_sequences;
#[cfg(test)]
mod weave_tests;
